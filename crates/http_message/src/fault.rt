//! Why a whole message is refused.

use crate::route::Route;
use room_ace::LineFault;
use room_rows::PathFault;

/// The first test of a whole message that fails.
#[derive(Clone, Copy, Debug, PartialEq, Eq)]
pub enum HttpFault {
    /// No route has the method.
    UnknownMethod,
    /// The target doesn't begin with `/`, or isn't UTF-8.
    BadTarget,
    /// The target has no route.
    NoRoute,
    /// The route doesn't have the method.
    OtherMethod(Route),
    /// The target names no path.
    BadPath(PathFault),
    /// The query is no mask.
    BadMask,
    /// There are several callers, or one without a name.
    BadUser,
    /// The body isn't the JSON that is due.
    BadBody,
    /// The body is no list text.
    BadList(LineFault),
}
