// Refusals that tell their number in the rules.
ghost use Rattle.std.specs.Prelude.{◌≡◌};
ghost use Rattle.uefi_types.specs.Refusal.{Refusal};

pub trait Numbered {
    // the refusal that it is, with the values that come with it
    ghost refusal: { Self → Refusal };

    // The refusal's number.
    fn number(&self) -> u32
        ensures { result ≡ (refusal self.now).number };
}
