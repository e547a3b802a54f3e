//! Frames in a row that are played at once: where the loop only goes on (`stretches`), where it
//! writes over its list (`rows`), and for how many a loop is quiet (`quiet`).

pub(crate) mod quiet;
mod rows;
pub(crate) mod stretches;
