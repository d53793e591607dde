//! The table as a limit.
ghost use Rattle.std.specs.Prelude.{◌≡◌};
ghost use Rattle.limits.specs.Least.{Smallest};
ghost use Rattle.client_table.specs.Tables.{whole_entries, WholeEntries, EachAllows, table, ByEntries};
ghost use Rattle.client_table.specs.Lawful.{table_lawful};

use crate::entry::Entry;
use limits::{LONGEST_CLOTHOID, Limit, Place};

/// The entries of the client's file, in the memory that it was loaded into; they are borrowed and never copied.
#[derive(Clone, Copy)]
pub struct ClientTable<'a> {
    /// twelve bytes each, in the order of the file
    pub entries: &'a [[u8; Entry::BYTES]],
}

impl<'a> ClientTable<'a> {
    /// The table of a file's bytes. A last entry cut short does not count.
    pub fn of(bytes: &'a [u8]) -> ClientTable<'a>
        ensures value { result.entries.now ≡ whole_entries bytes.now }
        ensures order { WholeEntries bytes.now result.entries.now }
    {
        let (entries, _cut_short) = bytes.as_chunks();
        ClientTable { entries }
    }

    // The least length that every entry lets a curve of that radius have: the largest that an entry wants.
    fn wanted(&self, radius: u32) -> u32
        ensures { Smallest (EachAllows self.now.entries.now radius) result }
    {
        self.entries
            .iter()
            .map(|entry| Entry::read(entry).wanted(radius))
            .max()
            .unwrap_or(0)
    }
}

impl Limit for ClientTable<'_> {
    ghost admitted = { λ client place. table client.entries.now place };

    ghost lawful = { λ client place. table_lawful client.entries.now place };

    fn admits(&self, place: &Place, length: u32) -> bool
        ensures set { result ≡ table self.now.entries.now place.now length }
        ensures entries { ByEntries self.now.entries.now place.now length result }
    {
        length <= LONGEST_CLOTHOID
            && self
                .entries
                .iter()
                .all(|entry| Entry::read(entry).allows(place.radius, length))
    }

    fn least_length(&self, place: &Place) -> Option<u32> {
        Some(self.wanted(place.radius)).filter(|least| *least <= LONGEST_CLOTHOID)
    }
}
