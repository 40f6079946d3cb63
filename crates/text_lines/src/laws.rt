//! A law of lines, which runs nothing.

ghost use Rattle.std.specs.Prelude.{ℕ, List};
ghost use Rattle.text_lines.specs.Lines.{IsCutInto, IsCutOnce, whole_lines, rest_of};

/// A law: bytes are cut in exactly one way into whole lines and a rest. Each line has its LF, and no other LF is in it.
pub fn law_of_lines()
    ensures cut { (bytes : List ℕ) → IsCutInto bytes (whole_lines bytes) (rest_of bytes) }
    ensures once { (bytes : List ℕ) → IsCutOnce bytes }
{}
