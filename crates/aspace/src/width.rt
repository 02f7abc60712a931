// The widths of numbers that are read and written.
ghost use Rattle.std.specs.Prelude.{refl, ℕ, ◌≤◌};
ghost use Rattle.std.proofs.Common.{leb-true};

// A type of numbers, and how many bytes one has: at most as many as a u64.
pub trait Width {
    const BYTES: usize;

    ghost BYTES: { ℕ };

    ghost fits: { BYTES ≤ 8 };
}

impl Width for u8 {
    const BYTES: usize = 1;

    ghost BYTES = { 1 };

    ghost fits = { leb-true 1 8 refl };
}

impl Width for u16 {
    const BYTES: usize = 2;

    ghost BYTES = { 2 };

    ghost fits = { leb-true 2 8 refl };
}

impl Width for u32 {
    const BYTES: usize = 4;

    ghost BYTES = { 4 };

    ghost fits = { leb-true 4 8 refl };
}

impl Width for u64 {
    const BYTES: usize = 8;

    ghost BYTES = { 8 };

    ghost fits = { leb-true 8 8 refl };
}
