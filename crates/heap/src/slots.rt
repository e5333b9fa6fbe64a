// The heap itself, in the first `len` slots of a slice, for every kind of entry.
// A public call takes any slots and any length: what it does to the entries holds of all of them, and
// what it does to their order holds where they were a heap.
ghost use Rattle.std.specs.Prelude.{◌≡◌, ◌-◌, ◌/◌, ◌<◌, length, MatchOption, MatchResult, slice_index_or};
ghost use Rattle.std.specs.List.Sorted.{IsPermutation};
ghost use Rattle.heap.specs.Heaps.{Heaped, Added, Removed, add_answer, remove_answer};
ghost use Rattle.heap.specs.Sifts.{Rising, Sinking, Least};

use crate::entry::HeapEntry;

// Why a heap does not take an entry.
#[derive(Clone, Copy, Debug, PartialEq, Eq)]
pub enum HeapRefusal {
    // every slot is in use, or as many entries wait as can
    Full,
}

// Whether the entry at `a` comes before the entry at `b`.
fn comes_before<T: HeapEntry>(heap: &[T], a: usize, b: usize) -> bool
    requires { (a < length heap.now) × (b < length heap.now) }
    ensures { (d : T) → result ≡ T.ahead (slice_index_or heap.now a d) (slice_index_or heap.now b d) }
{
    heap[a].before(&heap[b])
}

// Lets the last entry rise to its place. The loop walks up the tree and not along a range.
fn sift_up<T: HeapEntry>(heap: &mut [T])
    requires { 0 < length heap.old }
    ensures heaped { Rising T.ahead heap.old (length heap.old - 1) → Heaped T.ahead heap.new }
    ensures shuffled { IsPermutation heap.old heap.new }
{
    let mut at = heap.len() - 1;
    while 0 < at && comes_before(heap, at, (at - 1) / 2) {
        heap.swap((at - 1) / 2, at);
        at = (at - 1) / 2;
    }
}

// The child of `at` that comes before its other child.
fn first_child<T: HeapEntry>(heap: &[T], at: usize) -> usize
    requires { at < length heap.now / 2 }
    ensures bound { (0 < result) × (result < length heap.now) × ((result - 1) / 2 ≡ at) }
    ensures least { Least T.ahead heap.now at result }
{
    let left = at * 2 + 1;
    let right = left + 1;
    if right < heap.len() && comes_before(heap, right, left) {
        right
    } else {
        left
    }
}

// Lets the first entry sink to its place. The loop walks down the tree and not along a range.
fn sift_down<T: HeapEntry>(heap: &mut [T])
    ensures heaped { Sinking T.ahead heap.old 0 → Heaped T.ahead heap.new }
    ensures shuffled { IsPermutation heap.old heap.new }
{
    let mut at = 0;
    while at < heap.len() / 2 {
        let child = first_child(heap, at);
        if !comes_before(heap, child, at) {
            return;
        }
        heap.swap(at, child);
        at = child;
    }
}

// Adds an entry to the heap in the first `len` slots, which then is in the first `len + 1`.
// The length stands beside the slots, and no shorter slice in their place: an entry is put into the slot behind.
pub fn add<T: HeapEntry>(slots: &mut [T], len: usize, x: T) -> Result<(), HeapRefusal>
    ensures answer { result ≡ add_answer T.MOST (length slots.old) len }
    ensures after { MatchResult result (λ _. Added T.fields T.ahead x len slots.old slots.new) (λ _. slots.new ≡ slots.old) }
{
    if len >= T::MOST || len >= slots.len() {
        return Err(HeapRefusal::Full);
    }
    slots[len] = x;
    sift_up(&mut slots[0..len + 1]);
    Ok(())
}

// Takes the first entry out of the heap in the first `len` slots, which then is in the first `len - 1`.
pub fn remove<T: HeapEntry>(slots: &mut [T], len: usize) -> Option<T>
    ensures answer { result ≡ remove_answer len slots.old }
    ensures after { MatchOption result (slots.new ≡ slots.old) (λ x. Removed T.fields T.ahead x len slots.old slots.new) }
{
    if len == 0 || len > slots.len() {
        return None;
    }
    let first = slots[0];
    slots[0] = slots[len - 1];
    sift_down(&mut slots[0..len - 1]);
    Some(first)
}
