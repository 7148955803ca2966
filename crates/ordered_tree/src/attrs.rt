ghost use Rattle.std.specs.Prelude.{◌≡◌, option_map};
ghost use Rattle.ordered_tree.specs.Numbered.{attribute};

use crate::shared_attrs::SharedAttrs;

/// The value of the first attribute of this name.
pub(crate) fn find_attr<'a>(attrs: &'a SharedAttrs, name: &str) -> Option<&'a str>
    ensures { option_map (λ value. value.now) result ≡ attribute name.now attrs.now }
{
    for attr in attrs.as_slice() {
        if attr.name.as_str() == name {
            return Some(attr.value.as_str());
        }
    }
    None
}
