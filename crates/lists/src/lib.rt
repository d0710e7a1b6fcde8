// Words on lists that the layers above share, and the one removal that closes a gap.
#![tactic(auto)]

ghost use Rattle.std.specs.Prelude.{◌≡◌, ◌<◌, ◌≤◌, length, MatchOption};
ghost use Rattle.std.specs.List.{slice_get};
ghost use Rattle.lists.specs.Gaps.{closed};

// The element at a place, from 0; none where there is no such place.
pub fn item_at<T: Copy>(items: &[T], at: usize) -> Option<T>
    ensures value { result ≡ slice_get items.now at }
    ensures cases { MatchOption result (length items.now ≤ at) (λ _. at < length items.now) }
{
    items.get(at).copied()
}

// Takes out the element at a place and closes the gap: the elements after it move down by one, and the last one stays
// where it was too. Where there is no such place nothing changes.
pub fn close_gap<T: Copy>(items: &mut [T], at: usize) -> Option<T>
    ensures value { result ≡ slice_get items.old at }
    ensures cases { MatchOption result ((length items.old ≤ at) × (items.new ≡ items.old)) (λ _. (at < length items.old) × (items.new ≡ closed at items.old)) }
{
    let taken = item_at(items, at)?;
    items.copy_within(at + 1.., at);
    Some(taken)
}
