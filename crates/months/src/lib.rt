// Months and suis as records, and on paper (`specs/`) the month rule over days alone: definitions, examples and theorems (document 01, "Months of a sui").
// Nothing here knows of series, instants or dates, and nothing runs: the functions are those of `month_rule`.
#![tactic(auto)]

// A month: its handle, its first day, and how many days it has.
#[derive(Clone, Copy)]
pub struct Month {
    pub handle: i64,
    pub first: i64,
    pub length: i64,
}

// The days of a sui: how many months it has (12 or 13), its new-moon days from month 11 to the next sui's month 11, both ends, then zeros, and its
// 13 zhongqi days.
#[derive(Clone, Copy)]
pub struct SuiDays {
    pub months: usize,
    // Kept: fixed memory, no heap, so the count stands beside.
    pub moons: [i64; 14],
    pub zhongqi: [i64; 13],
}

// A sui: how many months it has, and those months; every place behind them holds zeros.
#[derive(Clone, Copy)]
pub struct Sui {
    pub count: usize,
    // Kept: fixed memory, no heap, so the count stands beside.
    pub months: [Month; 13],
}
