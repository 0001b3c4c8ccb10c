//! Laws of methods, routes, targets and rulings.
ghost use Rattle.http_message.specs.Laws.{AllowsWhatIsAsked, EveryMethodIsListed};
ghost use Rattle.http_message.specs.Laws.{EveryPathHasATarget, RulingsAreKeys, RoutesBeginPaths};

use room_rows::laws::path_reads_back;

/// The field Allow of a route lists the methods that ask something of it, in order.
pub fn allows_what_is_asked()
    ensures { AllowsWhatIsAsked }
{}

/// The field Allow of an unknown method lists all methods, and each is known by its text.
pub fn every_method_is_listed()
    ensures { EveryMethodIsListed }
{}

/// A path has a route exactly where it begins with a slash, the route and a slash.
pub fn routes_begin_paths()
    ensures { RoutesBeginPaths }
{}

/// Every path has a target under every route, which is read as that route and that path.
pub fn every_path_has_a_target()
    ensures { EveryPathHasATarget }
{
    path_reads_back();
}

/// Of rulings each letter is a key, with its ruling; there is no other; and the keys are in order.
pub fn rulings_are_keys()
    ensures { RulingsAreKeys }
{}
