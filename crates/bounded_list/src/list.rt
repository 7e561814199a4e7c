// The list's fields.
ghost use Rattle.std.specs.Prelude.{◌≤◌, length};

mod methods;

// The first `len` places of `items` are the list. The caller lends the records and there is no heap, so the length stands beside them.
#[derive(Drop)]
pub struct List<'a, T: Copy> {
    items: &'a mut [T],
    len: usize,
    ghost within: { len ≤ length items.now },
}
