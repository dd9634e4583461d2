// Reads the prefix of a framed message, and writes a message with its prefix.
#![tactic(auto)]

ghost use Rattle.std.specs.Prelude.{◌≡◌, ◌≤◌, length};
ghost use Rattle.reading.specs.Reading.{message_limit};
ghost use Rattle.octets.specs.Control.{following, coded};
ghost use Rattle.message_frame.specs.Frame.{frame_code, read, written, frame_read, frame_written, frame_stored};
ghost use Rattle.message_frame.specs.internal.Lead.{LeastPrefix};

use reading::{Fault, Refusal};
use std::ops::Range;

// The frame reader's answer as the C functions return it: a refusal number (0 if the frame is accepted), its place, and where it is accepted
// the places where the message starts and ends.
#[derive(Clone, Copy)]
pub struct FrameRead {
    pub refusal: u64,
    pub place: u64,
    pub start: u64,
    pub end: u64,
}

// The frame writer's answer as the C functions return it: a refusal number (0 if the frame is written), its place, and how many octets are written.
#[derive(Clone, Copy)]
pub struct FrameWritten {
    pub refusal: u64,
    pub place: u64,
    pub length: u64,
}

// The longest prefix and the longest message.
const BUFFER_LIMIT: usize = 65545;

impl From<Result<Range<usize>, Fault>> for FrameRead {
    ghost from_gives = { λ r answer. answer ≡ read r };

    fn from(read: Result<Range<usize>, Fault>) -> FrameRead {
        match read {
            Ok(part) => FrameRead {
                refusal: 0,
                place: 0,
                start: part.start as u64,
                end: part.end as u64,
            },
            Err(fault) => FrameRead {
                refusal: fault.refusal.number(),
                place: fault.place,
                start: 0,
                end: 0,
            },
        }
    }
}

impl From<Result<usize, Fault>> for FrameWritten {
    ghost from_gives = { λ r answer. answer ≡ written r };

    fn from(written: Result<usize, Fault>) -> FrameWritten {
        match written {
            Ok(length) => FrameWritten {
                refusal: 0,
                place: 0,
                length: length as u64,
            },
            Err(fault) => FrameWritten {
                refusal: fault.refusal.number(),
                place: fault.place,
                length: 0,
            },
        }
    }
}

// The count of octets of the size after the first octet of a prefix.
fn size_width(x: u8) -> usize
    ensures value { result ≡ following frame_code x }
    ensures upper_bound { result ≤ 8 }
{
    if x < 0xfc {
        return 0;
    }
    if x == 0xfc {
        return 1;
    }
    if x == 0xfd {
        return 2;
    }
    if x == 0xfe {
        return 4;
    }
    8
}

// The size that the first octet of a prefix and the octets after it announce.
#[tactic(auto, using(crate::proofs::FrameReadAnswers::sizes))]
fn size(x: u8, s: &[u8]) -> u64
    requires { length s.now ≤ 8 }
    ensures { result ≡ coded frame_code x s.now }
{
    if x < 0xfc {
        return u64::from(x);
    }
    octets_read::uint(s).value
}

// Returns where the message of the frame at the front of a buffer starts and ends. A size of eight octets can be so large that adding a
// place to it overflows, so it is compared with the count of octets after the prefix.
#[tactic(auto, using(crate::proofs::FrameReadAnswers::answers))]
pub fn frame_read(buffer: &[u8]) -> Result<Range<usize>, Fault>
    ensures { read result ≡ frame_read buffer.now }
{
    if BUFFER_LIMIT < buffer.len() {
        return Err(Refusal::TooLong.at(0));
    }
    if buffer.len() == 0 {
        return Err(Refusal::Cut.at(0));
    }
    let x = buffer[0];
    let start = 1 + size_width(x);
    if buffer.len() < start {
        return Err(Refusal::Cut.at(0));
    }
    let remaining = (buffer.len() - start) as u64;
    let n = size(x, &buffer[1..start]);
    if (reading::MESSAGE_LIMIT as u64) < n {
        return Err(Refusal::TooLong.at(0));
    }
    if remaining < n {
        return Err(Refusal::PastTheEnd.at(0));
    }
    Ok(start..start + n as usize)
}

// The first octet of a prefix, and the count of octets after it.
#[derive(Clone, Copy)]
struct Lead {
    octet: u8,
    width: u64,
}

// The shortest prefix of a message's size. No message is so long that its size takes eight octets.
#[tactic(auto, using(crate::proofs::Prefixes::prefixes))]
fn shortest_prefix(size: u64) -> Lead
    requires { size ≤ message_limit }
    ensures { LeastPrefix size result.octet result.width }
{
    if size < 0xfc {
        return Lead {
            octet: size as u8,
            width: 0,
        };
    }
    if size < 0x100 {
        return Lead {
            octet: 0xfc,
            width: 1,
        };
    }
    if size < 0x1_0000 {
        return Lead {
            octet: 0xfd,
            width: 2,
        };
    }
    Lead {
        octet: 0xfe,
        width: 4,
    }
}

// Writes a message with the shortest prefix to the front of a buffer, and returns how many octets that are.
#[tactic(auto, using(crate::proofs::FrameWriteAnswers::answers))]
pub fn frame_write(message: &[u8], out: &mut [u8]) -> Result<usize, Fault>
    ensures value { written result ≡ frame_written message.now (length out.old) }
    ensures out_after { out.new ≡ frame_stored message.now out.old }
{
    let size = message.len();
    if reading::MESSAGE_LIMIT < size {
        return Err(Refusal::TooLong.at(0));
    }
    let lead = shortest_prefix(size as u64);
    let start = 1 + (lead.width as usize);
    let total = start + size;
    if out.len() < total {
        return Err(Refusal::NoRoom.at(0));
    }
    out[0] = lead.octet;
    octets_put::put_number(out, 1, lead.width, size as u64);
    octets_store::put_octets(out, start, message);
    Ok(total)
}
