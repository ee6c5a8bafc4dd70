// For the C interface: the caller shows that the numbers of an answer fit.
pub mod record;
