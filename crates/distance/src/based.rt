//! Going along the bounds with one base.
ghost use Rattle.std.specs.Prelude.{◌<◌, length};
ghost use Rattle.std.specs.Option.{ForSome};

use crate::bounds::Bounds;

/// The positions of the bounds with one base, the latest first.
#[derive(Drop)]
pub(crate) struct Based<'a> {
    bounds: &'a Bounds,
    link: Option<usize>,
    ghost within: { ForSome link (λ q. q < length bounds.now.items.items) },
}

impl<'a> Iterator for Based<'a> {
    ghost use Rattle.std.specs.Iterator.{YieldsFirst, item_count};
    ghost use Rattle.distance.specs.Links.{left};

    type Item = usize;

    ghost next_gives = { YieldsFirst left };

    ghost remaining = { item_count left };

    fn next(&mut self) -> Option<usize> {
        let q = self.link?;
        self.link = self.bounds.nexts[q];
        Some(q)
    }
}

impl Bounds {
    ghost use Rattle.std.specs.Prelude.{◌≡◌, ◌<◌, length};
    ghost use Rattle.distance.specs.Index.{based};
    ghost use Rattle.distance.specs.Links.{left};

    /// The bounds with the base `x`.
    pub(crate) fn based(&self, x: u16) -> Based<'_>
        requires { x < self.now.terms }
        ensures { left result ≡ based self.now.items.items x (length self.now.items.items) }
    {
        Based {
            bounds: self,
            link: self.heads[usize::from(x)],
        }
    }
}
