// What a cast does with a value that the target type has no room for.
ghost use Rattle.std.specs.Prelude.{◌≡◌, false};
ghost use Rattle.col_types.specs.declared.cast_options.CastOptions.TheVariants.{Strict};
ghost use Rattle.col_types.specs.CastOptions.{is_strict, switches_of};

/// How a cast answers for a value that does not fit.
#[derive(Clone, Copy, Debug, PartialEq, Eq, Hash)]
pub enum CastOptions {
    /// The cast is refused.
    Strict,
    /// The slot becomes null.
    NonStrict,
    /// The value wraps, where the cast has a form that wraps.
    Overflowing,
}

impl Default for CastOptions {
    ghost is_default = { λ options. options ≡ Strict };

    fn default() -> Self {
        CastOptions::Strict
    }
}

impl CastOptions {
    /// Whether the cast is refused where a value does not fit.
    pub fn is_strict(&self) -> bool
        ensures value { result ≡ is_strict self.now }
    {
        matches!(self, CastOptions::Strict)
    }
}

/// The two switches that a kernel reads in place of `CastOptions`.
#[derive(Clone, Copy, Debug, PartialEq, Eq)]
pub struct CastOptionsImpl {
    /// Whether values wrap.
    pub wrapped: bool,
    /// Whether text may be followed by what is not read.
    pub partial: bool,
}

impl Default for CastOptionsImpl {
    ghost is_default = { λ options. (options.wrapped ≡ false) × (options.partial ≡ false) };

    fn default() -> Self {
        CastOptionsImpl {
            wrapped: false,
            partial: false,
        }
    }
}

impl From<CastOptions> for CastOptionsImpl {
    ghost from_gives = { λ options switches. switches ≡ switches_of options };

    fn from(options: CastOptions) -> Self {
        CastOptionsImpl {
            wrapped: matches!(options, CastOptions::Overflowing),
            partial: false,
        }
    }
}
