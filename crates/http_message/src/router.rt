//! The table of routes.
ghost use Rattle.std.specs.Prelude.{◌≡◌, OnOk};
ghost use Rattle.matchit.specs.declared.error.InsertError.{InsertError};
ghost use Rattle.http_message.specs.Router.{TakesBoth, TakesPattern, TakesRoute, TakesRoutes};
ghost use Rattle.http_message.specs.Router.{route_of, with_pattern, with_route, with_routes};

use crate::route::Route;
use matchit::{InsertError, Router};
use std::alloc::{AllocError, Global};
use std::marker::Model;

/// All routes by their patterns, made once for many messages, and where memory for these is taken.
/// A contract sees the rows of the table.
#[derive(Drop)]
pub struct Routes {
    alloc: Global,
    router: Router<Route>,
}

impl Model for Routes {
    ghost use Rattle.std.specs.Prelude.{◌≡◌};
    ghost use Rattle.http_message.specs.Router.{Table, routes};

    ghost Value = { Table };

    ghost view = { λ r. r.router };

    ghost invariant = { λ r. r.router ≡ routes };
}

const ROUTES: [Route; 8] = [
    Route::Doc,
    Route::Folder,
    Route::Object,
    Route::Move,
    Route::Dacl,
    Route::Sacl,
    Route::Attr,
    Route::Can,
];

impl Routes {
    /// The table of routes.
    pub fn new(alloc: Global) -> Result<Routes, AllocError> {
        let mut router = Router::new(alloc);
        add_routes(alloc, &mut router, &ROUTES)?;
        Ok(Routes { alloc, router })
    }

    /// Where memory for messages is taken.
    pub fn alloc(&self) -> Global {
        self.alloc
    }

    /// The route that the path has, if it has one.
    pub fn route_of(&self, path: &str) -> Option<Route>
        ensures { result ≡ route_of path.now }
    {
        match self.router.at(path) {
            Ok(found) => Some(*found.value),
            Err(_) => None,
        }
    }
}

// Adds the routes, in their order.
fn add_routes(alloc: Global, router: &mut Router<Route>, routes: &[Route]) -> Result<(), AllocError>
    requires { TakesRoutes router.old routes.now }
    ensures { OnOk result (router.new ≡ with_routes router.old routes.now) }
{
    'routes: for route in routes {
        add_route(alloc, router, *route)?;
    }
    Ok(())
}

// Adds the two patterns of a route.
fn add_route(alloc: Global, router: &mut Router<Route>, route: Route) -> Result<(), AllocError>
    requires { TakesRoute router.old route }
    ensures { OnOk result (router.new ≡ with_route router.old route) }
{
    let folder = format!(in alloc; "/{}/", route.as_str())?;
    let below = format!(in alloc; "/{}/{{*path}}", route.as_str())?;
    add_two(router, folder.as_str(), below.as_str(), route)
}

// Adds two patterns.
fn add_two(
    router: &mut Router<Route>,
    folder: &str,
    below: &str,
    route: Route,
) -> Result<(), AllocError>
    requires { TakesBoth folder.now below.now route router.old }
    ensures { OnOk result (router.new
        ≡ with_pattern below.now route (with_pattern folder.now route router.old)) }
{
    add_pattern(router, folder, route)?;
    add_pattern(router, below, route)
}

// Adds a pattern that can be added.
fn add_pattern(router: &mut Router<Route>, pattern: &str, route: Route) -> Result<(), AllocError>
    requires { TakesPattern pattern.now router.old }
    ensures { OnOk result (router.new ≡ with_pattern pattern.now route router.old) }
{
    match router.insert(pattern, route) {
        Ok(()) => Ok(()),
        Err(fault) => Err(memory_alone(fault)),
    }
}

// The fault of a pattern that can be added: memory ran out.
fn memory_alone(fault: InsertError) -> AllocError
    requires { fault ≡ InsertError.OutOfMemory }
{
    match fault {
        InsertError::OutOfMemory => AllocError,
        InsertError::Conflict { .. } => unreachable!(),
        InsertError::InvalidParamSegment => unreachable!(),
        InsertError::InvalidParam => unreachable!(),
        InsertError::InvalidCatchAll => unreachable!(),
    }
}
