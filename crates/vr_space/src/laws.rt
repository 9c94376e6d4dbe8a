//! Laws of what blocks stand for.
ghost use Rattle.std.specs.Prelude.{◌≡◌, ◌≤◌, ℕ, List, Option, Some, length};
ghost use Rattle.vr_types.specs.Content.{Content, IsContent, Item, Standing, item_at};
ghost use Rattle.vr_types.specs.Image.{Image};
ghost use Rattle.vr_space.specs.Owners.{Owners};
ghost use Rattle.vr_space.specs.Part.{Shape, StandsFor, HasKeptRoom, IsPlaceOf, IsSound, MayHold};
ghost use Rattle.vr_space.specs.Part.{MayGoBack, Stands, fits_at, item_of, room_of};
ghost use Rattle.vr_space.specs.Known.{Known};
ghost use Rattle.vr_space.specs.Room.{Lengths, with_length};

use vr_types::Blocks;

/// Blocks stand for one content at most.
#[tactic(auto, using(crate::proofs::Rising::one_content))]
pub fn one_content()
    ensures { (shape : Shape) (image : Image) (one other : Content)
        → StandsFor shape image one → StandsFor shape image other → one ≡ other }
{}

/// What blocks stand for is a content: its places ascend. At each place it has the item that a
/// reader comes to.
#[tactic(auto, using(crate::proofs::Rising::stands_content, crate::proofs::Adding::content_item))]
pub fn content_is_read()
    ensures content { (shape : Shape) (image : Image) (content : Content)
        → StandsFor shape image content → IsContent content }
    ensures read { (shape : Shape) (image : Image) (content : Content)
        → StandsFor shape image content
        → (place : List ℕ) → item_at content place ≡ item_of shape image place }
{}

/// The record of a place may be kept beside it, where a crash leaves no shorter one there: it takes
/// no room.
pub fn kept_takes_no_room<B: Blocks>(blocks: &B)
    ensures { (shape : Shape) (kept : Lengths) (place : List ℕ) (n : ℕ) → IsPlaceOf shape place
        → (owners : Owners) → IsSound shape owners (B.seen blocks.now)
        → HasKeptRoom shape kept (B.seen blocks.now)
        → ((item : Option Item) → MayHold shape (B.seen blocks.now).may place item
        → (bytes : List ℕ) × (item ≡ Some (Standing bytes)) × MayGoBack shape (length bytes) n)
        → HasKeptRoom shape (with_length kept place n) (B.seen blocks.now) }
{}

/// A record that is kept at its place while it stands there, or one that is no longer, is counted
/// once: no record has less room for it. So a before-image may be kept before its place is set, and
/// what was answered of room stays.
#[tactic(auto, using(crate::proofs::Counting::kept_fits, crate::proofs::Counting::kept_room))]
pub fn kept_counts_once()
    ensures room { (shape : Shape) (image : Image) (kept : Lengths) (place bytes : List ℕ) (n : ℕ)
        → Stands shape image → item_of shape image place ≡ Some (Standing bytes) → n ≤ length bytes
        → (known : Known) (free : ℕ) (other : List ℕ) (m : ℕ)
        → room_of shape known image free (with_length kept place n) other m
        ≡ room_of shape known image free kept other m }
    ensures fits { (shape : Shape) (image : Image) (kept : Lengths) (place bytes : List ℕ) (n : ℕ)
        → Stands shape image → item_of shape image place ≡ Some (Standing bytes) → n ≤ length bytes
        → (known : Known) (other : List ℕ) (m : ℕ)
        → fits_at shape known image (with_length kept place n) other m
        ≡ fits_at shape known image kept other m }
{}
