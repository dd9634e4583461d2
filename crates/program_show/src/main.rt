// Reads a framed table and then a framed message from standard input, and prints the message field by field, or the first refusal. It reads
// one octet more than the limit, so that it detects input that is too long.

#![tactic(auto)]

use std::io;

// The size of the output buffer.
const SIZE: usize = 65536;

fn main(rt: HostRuntime) -> io::Result<()> {
    let mut input = [0u8; 65537];
    let n = program_lines::read_full(&mut rt.stdin(), &mut input)?;
    let mut out = [0u8; SIZE];
    let total = text_show::show(&input[..n], 0, &mut out);
    let mut from: u64 = 0;
    // Kept: a step is a whole buffer, and the first is filled before the loop, since that call returns the length; step_by would fill it twice.
    loop {
        let remaining = total - from;
        if remaining <= SIZE as u64 {
            let end = remaining as usize;
            return rt.write_all(&out[0..end]);
        }
        rt.write_all(&out)?;
        from += SIZE as u64;
        text_show::show(&input[..n], from, &mut out);
    }
}
