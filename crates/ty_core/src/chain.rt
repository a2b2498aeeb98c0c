// The feed, and the breadcrumbs that it has made.
ghost use Rattle.std.specs.Prelude.{◌<◌, length};

use ty_crumb::Crumb;
use ty_intake::Intake;

/// A feed, and the breadcrumbs that it has made: breadcrumb n is at place n.
#[derive(Drop)]
pub struct Chain {
    pub(crate) intake: Intake,
    pub(crate) crumbs: Vec<Crumb>,
    pub ghost some: { 0 < length crumbs.items },
}
