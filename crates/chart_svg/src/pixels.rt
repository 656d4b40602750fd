//! Places on the page, in pixels from its top left corner, and about what text takes of it.

ghost use Rattle.std.specs.Prelude.{◌≡◌, ◌+◌, ◌-◌, ◌*◌};
ghost use Rattle.chart_svg.specs.Drawn.{pixels};

/// A distance from the left or from the top. It stops at 0 and at the greatest number.
#[derive(Clone, Copy, PartialEq, Eq, PartialOrd, Ord)]
pub struct Px(pub u32);

impl Px {
    /// So much further to the right or down.
    pub fn plus(self, by: u32) -> Px
        ensures { result.0 ≡ pixels (self.0 + by) }
    {
        Px(self.0.saturating_add(by))
    }

    /// So much further to the left or up.
    pub fn minus(self, by: u32) -> Px {
        Px(self.0.saturating_sub(by))
    }

    /// So many times that much further.
    pub fn plus_times(self, times: u32, by: u32) -> Px
        ensures { result.0 ≡ pixels (self.0 + times * by) }
    {
        self.plus(times.saturating_mul(by))
    }

    /// How far it is from there.
    pub fn from(self, there: Px) -> u32
        ensures { result ≡ self.0 - there.0 }
    {
        self.0.saturating_sub(there.0)
    }
}

/// So many, and the greatest number where there are more.
pub fn count(n: usize) -> u32
    ensures { result ≡ pixels n }
{
    n.min(0xffff_ffff) as u32
}

/// About how wide a text of so many bytes is, where a letter takes so many tenths of a pixel.
pub fn width_of(bytes: usize, tenths: u32) -> u32 {
    count(bytes).saturating_mul(tenths) / 10
}
