//! Where what stands behind its size ends (standard, sections 5.5.2 and 5.5.13).

ghost use Rattle.std.specs.Prelude.{◌<◌, ◌≤◌, length, IfNone, IfSome};
ghost use Rattle.wasm_build.specs.Extents.{NumberAt, NoNumberAt, EndsAt, NoEnd};

use wa_types::read_u32;

/// The number that stands whole at a place, whatever follows; the place moves behind it.
pub(crate) fn number(bytes: &[u8], at: &mut usize) -> Option<u32>
    requires { at.old ≤ length bytes.now }
    ensures within { at.new ≤ length bytes.now }
    ensures some { IfSome result (λ n. NumberAt bytes.now at.old n at.new) }
    ensures none { IfNone result (NoNumberAt bytes.now at.old) }
{
    match read_u32(bytes, at) {
        Ok(n) => Some(n),
        Err(_) => None,
    }
}

/// Where the number at this place and so many bytes behind it end, if all of them are there.
pub(crate) fn sized_end(bytes: &[u8], at: usize) -> Option<usize>
    requires { at ≤ length bytes.now }
    ensures some { IfSome result (λ end. (at < end) × (end ≤ length bytes.now) × EndsAt bytes.now at end) }
    ensures none { IfNone result (NoEnd bytes.now at) }
{
    let mut place = at;
    let Some(size) = number(bytes, &mut place) else {
        return None;
    };
    if bytes.len() - place < size as usize {
        return None;
    }
    Some(place + size as usize)
}
