// For the rebuild of a file. The zone is in minutes.
pub mod days;
pub mod walk;
pub mod years;
