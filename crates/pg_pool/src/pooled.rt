ghost use Rattle.std.specs.Prelude.{◌≡◌, Bool};

/// What a pool can keep.
pub trait Pooled {
    // Nothing of an earlier use is left.
    ghost clean: { Self → Bool };

    /// Whether nothing of an earlier use is left, so that another participant may have it.
    fn is_clean(&self) -> bool
        ensures { result ≡ clean self.now };
}
