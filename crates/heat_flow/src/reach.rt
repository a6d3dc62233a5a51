//! Which hot parts reach which cold parts.
ghost use Rattle.std.specs.Prelude.{◌≡◌, ◌≤◌, ◌<◌, ◌*◌, ℕ, Bool, length};
ghost use Rattle.stream_case.specs.declared.limits.TheConstants.{MOST_PARTS};

use stream_case::Items;

/// Which hot parts reach which cold parts, by the indexes of the parts.
pub trait Reaches {
    /// It tells the reach that it stands for.
    ghost is_sound: { Self → Type 0 };

    /// The hot part at an index reaches the cold part at another.
    ghost reach: { Self → ℕ → ℕ → Bool };

    /// Whether the hot part of index `hot` reaches the cold part of index `cold`. Where there is
    /// no such part the answer is false.
    fn reaches(&self, hot: u32, cold: u32) -> bool
        requires { is_sound self.now }
        ensures { result ≡ reach self.now hot cold };
}

/// The table of pairs: for each hot part and each cold part, whether heat may pass from the one
/// to the other.
#[derive(Debug, Drop)]
pub struct Reach {
    /// The number of hot parts.
    pub hots: u32,
    /// The number of cold parts.
    pub colds: u32,
    /// The truth values, row by row over the hot parts.
    pub cells: Items<bool>,
    ghost few_hots: { hots ≤ MOST_PARTS },
    ghost few_colds: { colds ≤ MOST_PARTS },
    ghost whole: { length cells ≡ hots * colds },
}
