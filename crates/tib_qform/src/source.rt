// A dictionary as a caller lends it: the octets of its records, or one that was loaded.

ghost use Rattle.std.specs.Prelude.{◌≡◌, List, replicate};
ghost use Rattle.reading.specs.Reading.{Reading, accepted};
ghost use Rattle.tib_dictionary.specs.internal.Search.{first_with};
ghost use Rattle.tib_dictionary.specs.declared.Entry.{Entry};
ghost use Rattle.tib_dictionary.specs.Load.{loading};
ghost use Rattle.tib_qform.specs.CheckAndField.{entries_of};
ghost use Rattle.tib_qform.specs.internal.Found.{Noted};

use tib_dictionary::{Dictionary, Entry};

pub(crate) trait Source {
    // Its entries, or its refusal.
    ghost read: { Self → Reading (List Entry) };

    // Notes its entries in cells that were cleared. Fails with the place of the first faulty record.
    fn note(&self, cells: &mut [u16; 16384]) -> Result<(), u64>
        requires { cells.old ≡ replicate 16384 0 }
        ensures { Noted (read self.now) result cells.new };

    // Returns the entry with a fid.
    fn entry(&self, fid: u64) -> Option<Entry>
        ensures { (es : List Entry) → read self.now ≡ accepted es → result ≡ first_with fid es };
}

// The octets of a dictionary.
#[derive(Clone, Copy)]
pub(crate) struct Records<'a> {
    pub(crate) octets: &'a [u8],
}

impl<'a> Source for Records<'a> {
    ghost read = { λ d. loading d.octets.now };

    fn note(&self, cells: &mut [u16; 16384]) -> Result<(), u64> {
        let end = tib_dictionary_index::note_records(self.octets, cells);
        if end < self.octets.len() {
            return Err(end as u64);
        }
        Ok(())
    }

    fn entry(&self, fid: u64) -> Option<Entry> {
        tib_dictionary_index::find_record(self.octets, fid)
    }
}

impl Source for Dictionary {
    ghost read = { entries_of };

    fn note(&self, cells: &mut [u16; 16384]) -> Result<(), u64> {
        if !tib_dictionary_index::note_words(&self.words, self.count, cells) {
            return Err(0);
        }
        Ok(())
    }

    fn entry(&self, fid: u64) -> Option<Entry> {
        tib_dictionary_index::find_word(&self.words, self.count, fid)
    }
}
