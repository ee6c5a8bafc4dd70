// The words of two lists, read as records.
use crate::inner::{Records, SuiRecord};
use months::Month;

#[derive(Clone, Copy)]
pub struct Lists<'a> {
    pub suis: &'a [i64],
    pub months: &'a [i64],
}

impl<'a> Records for Lists<'a> {
    ghost suis = { λ lists. lists.suis.now };

    ghost months = { λ lists. lists.months.now };

    fn sui_count(&self) -> usize {
        self.suis.len() / 2
    }

    fn month_count(&self) -> usize {
        self.months.len() / 3
    }

    fn sui_at(&self, i: usize) -> SuiRecord {
        SuiRecord {
            year: self.suis[2 * i],
            months: self.suis[2 * i + 1],
        }
    }

    fn month_at(&self, k: usize) -> Month {
        Month {
            handle: self.months[3 * k],
            first: self.months[3 * k + 1],
            length: self.months[3 * k + 2],
        }
    }
}
