//! What a command asks for.

/// What words ask for. Their texts are borrowed.
#[derive(Clone, Copy, PartialEq, Eq)]
pub enum Plan<'a> {
    /// `run JOB DIR`, and `trace JOB DIR`, which also prints the history: the job is run over the
    /// volumes of a directory. `-` as the job is standard input, and as the directory one volume
    /// in memory.
    Run {
        job: &'a str,
        dir: &'a str,
        trace: bool,
    },
    /// `format DIR COUNT` and `format DIR COUNT SIZE BLOCKS LOG AREA`: this many volumes, 1 to 16,
    /// are made in a directory. A block has `size` bytes, a volume `blocks` blocks, of which `log`
    /// are the log's, and an area `area` control intervals.
    Format {
        dir: &'a str,
        count: u32,
        size: u64,
        blocks: u64,
        log: u64,
        area: u64,
    },
}
