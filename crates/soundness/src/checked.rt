// Links that were checked.

ghost use Rattle.std.specs.Prelude.{◌≡◌, true};
ghost use Rattle.rules.specs.Tables.{links_ok};

use units::Link;

// Links that obey document 01's limits.
#[derive(Clone, Copy)]
pub struct CheckedLinks<'a> {
    pub links: &'a [Link],
    pub ghost right: { links_ok links.now ≡ true },
}
