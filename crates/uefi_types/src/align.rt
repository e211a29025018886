// The alignment that a structure of the firmware wants.
ghost use Rattle.std.specs.Prelude.{◌≡◌, ℕ, ◌^◌, ◌<◌, IfSome};
ghost use Rattle.std.specs.Option.{SomeIff};
ghost use Rattle.uefi_types.specs.Aligned.{padding, round_up, RoundsUp};

pub trait Align {
    // the alignment in bytes
    ghost align: { ℕ };

    fn alignment() -> usize
        ensures { result ≡ align };

    // How far `val` is below the next multiple of the alignment.
    fn offset_up_to_alignment(val: usize) -> usize
        ensures { result ≡ padding align val }
    {
        let r = val % Self::alignment();
        if r == 0 { 0 } else { Self::alignment() - r }
    }

    // `val` rounded up to the alignment; None where that has no 64 bits.
    fn round_up_to_alignment(val: usize) -> Option<usize>
        ensures value { SomeIff result (round_up align val < 2 ^ 64) (round_up align val) }
        ensures law { IfSome result (λ m. RoundsUp align val m) }
    {
        val.checked_add(Self::offset_up_to_alignment(val))
    }

    ghost bounds: { (0 < align) × (align < 2 ^ 16) };
}
