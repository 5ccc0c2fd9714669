// Named things in memory: where a name stands among them, and parts of their bytes.
ghost use Rattle.std.specs.Prelude.{◌≡◌, ◌-◌, min, length, take, drop, option_map, None, IfSome, IfNone};
ghost use Rattle.desk.specs.Files.{named_at};
ghost use Rattle.desk.specs.inner.Places.{IsPlaceOf};

use dec_text::Name;

/// The place of the first with this name.
pub(crate) fn place_of<V>(named: &[(Name, V)], name: &str) -> Option<usize>
    ensures found { IfSome result (IsPlaceOf named.now name.now) }
    ensures missing { IfNone result (named_at named.now name.now ≡ None) }
{
    for (i, one) in named.iter().enumerate() {
        if one.0.as_str() == name {
            return Some(i);
        }
    }
    None
}

/// The first with this name.
pub(crate) fn find<'n, V>(named: &'n [(Name, V)], name: &str) -> Option<&'n V>
    ensures { option_map (λ v. v.now) result ≡ named_at named.now name.now }
{
    match place_of(named, name) {
        Some(i) => Some(&named[i].1),
        None => None,
    }
}

// The bytes from a place on.
fn rest(bytes: &[u8], at: u64) -> &[u8]
    ensures { result.now ≡ drop at bytes.now }
{
    if at < bytes.len() as u64 {
        &bytes[at as usize..]
    } else {
        &[]
    }
}

/// Copies bytes from a place on to the front of `into`, as many as there are and as fit.
pub(crate) fn copy_from(bytes: &[u8], at: u64, into: &mut [u8]) -> usize
    ensures count { result ≡ min (length into.old) (length bytes.now - at) }
    ensures front { take result into.new ≡ take result (drop at bytes.now) }
{
    let rest = rest(bytes, at);
    let n = into.len().min(rest.len());
    into[..n].copy_from_slice(&rest[..n]);
    n
}

/// The first bytes, at most so many.
pub(crate) fn front(bytes: &[u8], most: u64) -> &[u8]
    ensures { result.now ≡ take most bytes.now }
{
    if most < bytes.len() as u64 {
        &bytes[..most as usize]
    } else {
        bytes
    }
}
