// A cutting job, as the procedure stores it.
ghost use Rattle.std.specs.Prelude.{◌≡◌, Decides};

/// A job of eight blocks: the nest (0 and 1), the contours (2 to 4) and the head path (5 to 7).
#[derive(Clone, Copy, PartialEq, Eq)]
pub struct Job {
    pub parts: [[u8; 512]; 8],
}

impl Job {
    // Whether the two jobs are alike, part by part: `==`, in the words that contracts use.
    pub(crate) fn same(&self, other: &Job) -> bool
        ensures { Decides result (self.now.parts ≡ other.now.parts) }
    {
        self == other
    }
}
