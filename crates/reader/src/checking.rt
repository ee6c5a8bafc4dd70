// Whether the content that stands in a file is lawful, judged from its bytes, record after record; only the leap table is read into words.
ghost use Rattle.std.specs.Prelude.{◌≡◌, ◌≤◌, length};
ghost use Rattle.content.specs.Content.{lawful};
ghost use Rattle.almanac.specs.Layout.{end_at, content_at};

use crate::reading::read_entries;
use almanac::Counts;
use content::inner::{Records, SuiRecord, suis_lawful};
use conversion::inner::leap_lawful;
use months::Month;
use words::inner::{byte_at, signed4_at, unsigned4_at};

// Room for the words of the largest leap table: 64 entries.
fn entry_words() -> [i64; 128]
    ensures { 128 ≡ length result }
{
    [0; 128]
}

// The records of a file of these counts.
#[derive(Clone, Copy)]
struct InFile<'a> {
    file: &'a [u8],
    counts: Counts,
    ghost ends: { end_at counts.entries counts.suis counts.months ≤ length file.now },
}

impl<'a> Records for InFile<'a> {
    ghost suis = { λ records. (content_at records.file.now records.counts).suis };

    ghost months = { λ records. (content_at records.file.now records.counts).months };

    #[tactic(auto, using(almanac::specs::theory::Checked::sui_count_lem))]
    fn sui_count(&self) -> usize {
        self.counts.suis
    }

    #[tactic(auto, using(almanac::specs::theory::Checked::month_count_lem))]
    fn month_count(&self) -> usize {
        self.counts.months
    }

    #[tactic(auto, using(almanac::specs::theory::Checked::sui_count_lem))]
    fn sui_at(&self, i: usize) -> SuiRecord {
        let n = self.counts;
        let at = 4 + 8 * n.entries + 4 + 5 * i;
        SuiRecord {
            year: signed4_at(self.file, at),
            months: byte_at(self.file, at + 4),
        }
    }

    #[tactic(auto, using(almanac::specs::theory::Checked::month_count_lem))]
    fn month_at(&self, k: usize) -> Month {
        let n = self.counts;
        let at = 4 + 8 * n.entries + 4 + 5 * n.suis + 4 + 9 * k;
        Month {
            handle: unsigned4_at(self.file, at),
            first: signed4_at(self.file, at + 4),
            length: byte_at(self.file, at + 8),
        }
    }
}

// Whether the content of a file of these counts is lawful.
pub fn lawful_at(file: &[u8], n: Counts) -> bool
    requires { end_at n.entries n.suis n.months ≤ length file.now }
    ensures { result ≡ lawful (content_at file.now n) }
{
    if 64 < n.entries {
        return false;
    }
    if 128 < n.suis {
        return false;
    }
    if n.suis < 1 {
        return false;
    }
    // Kept: fixed memory, no heap.
    let mut leap = entry_words();
    read_entries(file, 4, n.entries, &mut leap);
    if !leap_lawful(&leap[..2 * n.entries]) {
        return false;
    }
    suis_lawful(&InFile { file, counts: n })
}
