//! A part as it is found on its blocks: where the entry of the catalog says that it is, which areas
//! it has, and of a keyed part the first block that breaks a rule, if one does. It stands on
//! `vr_types`, `vr_ci_match`, `vr_ci`, `vr_seqset`, `vr_space` and `vr_catalog`.
//!
//! It promises that the blocks of a keyed part stand for a content in areas that nobody else has,
//! or that the block and the rule shown are the first and the least of the walk; never both, never
//! neither, and one damage at most.
#![tactic(auto)]

mod areas;
mod damage;
mod head;
mod interval;
mod laid;
mod laws;
mod link;
mod part_no;
mod rule;
mod taken;
mod walk;

pub use areas::{Areas, no_areas};
pub use damage::Damage;
pub use laid::{chain_layout_of, layout_of};
pub use laws::{damage_or_content, damaged_blocks_stand_for_none, one_damage};
pub use part_no::PartNo2;
pub use rule::Rule;
pub use taken::take_area;
pub use walk::walk_chain;
