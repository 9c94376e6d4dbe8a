//! Maps from a key to the numbers that are filed under it.
ghost use Rattle.std.specs.Prelude.{◌≡◌, ℕ, List, [], ◌∷◌, ◌++◌, not, nat_eq, cond, OnOk, OnErr};
ghost use Rattle.std.specs.HashMap.{get};
ghost use Rattle.std.specs.List.{filter};
ghost use Rattle.vr_locks.specs.Filed.{AreUsed, numbers_in};

use std::alloc::Global;
use std::collections::HashMap;
use std::hash::Hash;
use vr_types::OutOfMemory;

/// The numbers under a key.
pub(crate) fn numbers<'a, K: Eq + Hash>(map: &'a HashMap<K, Vec<u64>>, key: &K) -> &'a [u64]
    ensures { result.now ≡ numbers_in (get K.eq map.now key.now) }
{
    match map.get(key) {
        Some(numbers) => numbers.as_slice(),
        None => &[],
    }
}

/// Adds a number under a key, as the last. Where memory runs out, each key has the numbers that it
/// had.
pub(crate) fn file<K: Eq + Hash + Drop>(
    alloc: Global,
    map: &mut HashMap<K, Vec<u64>>,
    key: K,
    number: u64,
) -> Result<(), OutOfMemory>
    requires { AreUsed (get K.eq map.old) }
    ensures used { AreUsed (get K.eq map.new) }
    ensures ok { OnOk result ((q : K) →
        let old = numbers_in (get K.eq map.old q) in
        numbers_in (get K.eq map.new q) ≡ cond (K.eq key q) (old ++ number ∷ []) old) }
    ensures err { OnErr result ((q : K) →
        numbers_in (get K.eq map.new q) ≡ numbers_in (get K.eq map.old q)) }
{
    if let Some(numbers) = map.get_mut(&key) {
        numbers.push(number)?;
        return Ok(());
    }
    let mut numbers = Vec::new(alloc);
    numbers.push(number)?;
    map.insert(key, numbers)?;
    Ok(())
}

/// Takes a number out of a list.
fn drop_from(numbers: &mut Vec<u64>, number: u64)
    ensures { numbers.new.items ≡ filter (λ n. not (nat_eq n number)) numbers.old.items }
{
    numbers.retain(|n| *n != number);
}

/// Takes a number away from under a key, and the key too where it has no other.
pub(crate) fn drop_number<K: Eq + Hash + Drop>(map: &mut HashMap<K, Vec<u64>>, key: &K, number: u64)
    requires { AreUsed (get K.eq map.old) }
    ensures used { AreUsed (get K.eq map.new) }
    ensures numbers { (q : K) →
        let old = numbers_in (get K.eq map.old q) in
        numbers_in (get K.eq map.new q)
        ≡ cond (K.eq key.now q) (filter (λ n. not (nat_eq n number)) old) old }
{
    let Some(numbers) = map.get_mut(key) else {
        return;
    };
    drop_from(numbers, number);
    if numbers.is_empty() {
        map.remove(key);
    }
}

/// Takes away a key, and gives the numbers that stood under it.
pub(crate) fn take_numbers<K: Eq + Hash + Drop>(
    alloc: Global,
    map: &mut HashMap<K, Vec<u64>>,
    key: &K,
) -> Vec<u64>
    requires { AreUsed (get K.eq map.old) }
    ensures used { AreUsed (get K.eq map.new) }
    ensures numbers { result.items ≡ numbers_in (get K.eq map.old key.now) }
    ensures others { (q : K) → numbers_in (get K.eq map.new q)
        ≡ cond (K.eq key.now q) [] (numbers_in (get K.eq map.old q)) }
{
    match map.remove(key) {
        Some(numbers) => numbers,
        None => Vec::new(alloc),
    }
}
