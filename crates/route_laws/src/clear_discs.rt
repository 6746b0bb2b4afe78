//! Laws of links that can be seen to be open, each the contract of a function that does nothing.

ghost use Rattle.std.specs.Prelude.{ℕ, List};
ghost use Rattle.plan_model.specs.Runs.Textbook.{Setup};
ghost use Rattle.plan_model.specs.declared.geometry.Point.{Point};
ghost use Rattle.route_laws.specs.Routes.{HasClearDisc, KeepsBodyFar, IsOpenLink, IsRoute};

/// A link is open if each rational point in the disc around its end, out to its beginning, is clear: walls, body and clearance included.
/// So a route of such links is a route of open links.
pub fn clear_discs_open_links()
    ensures link { (setup : Setup) (a b : Point) → HasClearDisc setup a b → IsOpenLink setup a b }
    ensures route { (setup : Setup) (marks : List Point) (numbers : List ℕ) → IsRoute setup marks (HasClearDisc setup) numbers
        → IsRoute setup marks (IsOpenLink setup) numbers }
{}

/// Without a clearance, the disc around the end of a link is clear if the body, placed at this end, keeps farther from all obstacles than
/// the link is long, and as far from all walls.
pub fn distant_bodies_have_clear_discs()
    ensures link { (setup : Setup) (a b : Point) → KeepsBodyFar setup a b → HasClearDisc setup a b }
    ensures route { (setup : Setup) (marks : List Point) (numbers : List ℕ) → IsRoute setup marks (KeepsBodyFar setup) numbers
        → IsRoute setup marks (HasClearDisc setup) numbers }
{}
