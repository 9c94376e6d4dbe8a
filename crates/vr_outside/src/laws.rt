//! Laws of what sources hand out and sinks take.
ghost use Rattle.std.specs.Prelude.{◌≡◌, ℕ, Option, List, ◌++◌, IfSome};
ghost use Rattle.std.specs.Io.KnownBytes.{IsAtEnd};
ghost use Rattle.vr_outside.specs.Told.{Reads, Takes};

/// What two reads in a row handed out is what one read would have that handed out the bytes of
/// both.
pub fn reads_join()
    ensures { (first second third : Option (List ℕ)) (earlier later : List ℕ) →
        Reads first second earlier → Reads second third later
        → Reads first third (earlier ++ later) }
{}

/// What was handed out up to the end is all that there was.
pub fn reads_end()
    ensures { (first last : Option (List ℕ)) (bytes : List ℕ) →
        Reads first last bytes → IsAtEnd last → IfSome first (λ all. all ≡ bytes) }
{}

/// What two writes in a row took is what one write would have taken of the bytes of both.
pub fn takes_join()
    ensures { (first second third : Option (List ℕ)) (earlier later : List ℕ) →
        Takes first second earlier → Takes second third later
        → Takes first third (earlier ++ later) }
{}
