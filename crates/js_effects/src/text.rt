// Texts that stand in two parts.
ghost use Rattle.std.specs.Prelude.{◌≡◌, ◌&&◌, ◌++◌, ◌≤◌, length, take, drop};
ghost use Rattle.std.specs.Str.{bytes_eq};
ghost use Rattle.js_effects.specs.Values.{is_empty};

#[tactic(auto, using(crate::proofs::Texts::empty_text))]
pub(crate) fn is_empty_text(text: &str) -> bool
    ensures { result ≡ is_empty text.now }
{
    text.is_empty()
}

fn begins_with(whole: &[u8], front: &[u8]) -> bool
    requires { length front.now ≤ length whole.now }
    ensures { result ≡ bytes_eq (take (length front.now) whole.now) front.now }
{
    &whole[..front.len()] == front
}

fn goes_on_with(whole: &[u8], front: &[u8], back: &[u8]) -> bool
    requires { length front.now ≤ length whole.now }
    ensures { result ≡ bytes_eq (drop (length front.now) whole.now) back.now }
{
    &whole[front.len()..] == back
}

fn has_both(whole: &[u8], front: &[u8], back: &[u8]) -> bool
    requires { length front.now ≤ length whole.now }
    ensures { result ≡ (bytes_eq (take (length front.now) whole.now) front.now && bytes_eq (drop (length front.now) whole.now) back.now) }
{
    begins_with(whole, front) && goes_on_with(whole, front, back)
}

fn is_in_two(whole: &[u8], front: &[u8], back: &[u8]) -> bool
    requires { length front.now ≤ length whole.now }
    ensures { result ≡ bytes_eq whole.now (front.now ++ back.now) }
{
    has_both(whole, front, back)
}

#[tactic(auto, using(crate::proofs::Texts::whole_too_short))]
fn is_both(whole: &[u8], front: &[u8], back: &[u8]) -> bool
    ensures { result ≡ bytes_eq whole.now (front.now ++ back.now) }
{
    if front.len() <= whole.len() {
        is_in_two(whole, front, back)
    } else {
        false
    }
}

fn is_both_behind(whole: &[u8], front: &[u8], front_behind: &[u8], back: &[u8]) -> bool
    requires { length front.now ≤ length front_behind.now }
    ensures { result ≡ bytes_eq whole.now (drop (length front.now) front_behind.now ++ back.now) }
{
    is_both(whole, &front_behind[front.len()..], back)
}

fn agree(front: &[u8], back: &[u8], other_front: &[u8], other_back: &[u8]) -> bool
    requires { length front.now ≤ length other_front.now }
    ensures { result ≡ (bytes_eq (take (length front.now) other_front.now) front.now && bytes_eq back.now (drop (length front.now) other_front.now ++ other_back.now)) }
{
    begins_with(other_front, front) && is_both_behind(back, front, other_front, other_back)
}

fn same_from_shorter(front: &[u8], back: &[u8], other_front: &[u8], other_back: &[u8]) -> bool
    requires { length front.now ≤ length other_front.now }
    ensures { result ≡ bytes_eq (front.now ++ back.now) (other_front.now ++ other_back.now) }
{
    agree(front, back, other_front, other_back)
}

/// Whether two texts are the same.
#[tactic(auto, using(crate::proofs::Texts::texts_swap))]
pub(crate) fn same_text(front: &str, back: &str, other_front: &str, other_back: &str) -> bool
    ensures { result ≡ bytes_eq (front.now ++ back.now) (other_front.now ++ other_back.now) }
{
    let (front, back) = (front.as_bytes(), back.as_bytes());
    let (other_front, other_back) = (other_front.as_bytes(), other_back.as_bytes());
    if front.len() <= other_front.len() {
        same_from_shorter(front, back, other_front, other_back)
    } else {
        same_from_shorter(other_front, other_back, front, back)
    }
}
