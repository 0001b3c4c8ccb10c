//! The routes, the methods that each has, and what they ask.
ghost use Rattle.std.specs.Prelude.{◌≡◌};
ghost use Rattle.http_message.specs.Route.{action_of, allow_text, route_text, verb_of};
ghost use Rattle.http_message.specs.declared.route.Route.{Route};

use room_ace::Which;

/// A method that some route has.
#[derive(Clone, Copy, Debug, PartialEq, Eq)]
pub enum Verb {
    /// `GET`
    Get,
    /// `PUT`
    Put,
    /// `POST`
    Post,
    /// `DELETE`
    Delete,
}

/// The first name of a target, which says what of an object is meant.
#[derive(Clone, Copy, Debug, PartialEq, Eq, Drop)]
pub enum Route {
    /// The bytes of a document.
    Doc,
    /// The children of a folder.
    Folder,
    /// The object itself, which is removed.
    Object,
    /// The object's place.
    Move,
    /// The access list.
    Dacl,
    /// The list of audits and alarms.
    Sacl,
    /// The owners.
    Attr,
    /// What the lists say of bits.
    Can,
}

/// What a message asks, before its path and its body are read.
#[derive(Clone, Copy, Debug, PartialEq, Eq)]
pub enum Action {
    /// The bytes of a document.
    Read,
    /// The children of a folder.
    List,
    /// A document gets these bytes, and is made where there is none.
    Put,
    /// A document gets bytes at its end.
    Append,
    /// A new folder.
    MakeFolder,
    /// An object is removed.
    Remove,
    /// An object gets another path.
    Move,
    /// A list of an object.
    ReadList(Which),
    /// A list of an object is replaced.
    SetList(Which),
    /// Kind and owners of an object.
    ReadAttr,
    /// An object gets owners.
    SetOwners,
    /// The ruling of each bit of a mask.
    Can,
}

// The method of these bytes.
pub(crate) fn verb_of(method: &[u8]) -> Option<Verb>
    ensures { result ≡ verb_of method.now }
{
    if method == b"GET".as_slice() {
        Some(Verb::Get)
    } else if method == b"PUT".as_slice() {
        Some(Verb::Put)
    } else if method == b"POST".as_slice() {
        Some(Verb::Post)
    } else if method == b"DELETE".as_slice() {
        Some(Verb::Delete)
    } else {
        None
    }
}

impl Route {
    /// The route as it stands in a target.
    pub fn as_str(self) -> &'static str
        ensures { result.now ≡ route_text self }
    {
        match self {
            Route::Doc => "doc",
            Route::Folder => "folder",
            Route::Object => "object",
            Route::Move => "move",
            Route::Dacl => "dacl",
            Route::Sacl => "sacl",
            Route::Attr => "attr",
            Route::Can => "can",
        }
    }

    /// The methods of the route, as the field Allow says them.
    pub fn allow(self) -> &'static str
        ensures { result.now ≡ allow_text self }
    {
        match self {
            Route::Doc => "GET, POST, PUT",
            Route::Folder => "GET, POST",
            Route::Object => "DELETE",
            Route::Move => "POST",
            Route::Dacl | Route::Sacl | Route::Attr => "GET, PUT",
            Route::Can => "GET",
        }
    }

    /// What the route and a method ask, if the route has the method.
    pub fn action(self, verb: Verb) -> Option<Action>
        ensures { result ≡ action_of self verb }
    {
        match (self, verb) {
            (Route::Doc, Verb::Get) => Some(Action::Read),
            (Route::Doc, Verb::Put) => Some(Action::Put),
            (Route::Doc, Verb::Post) => Some(Action::Append),
            (Route::Folder, Verb::Get) => Some(Action::List),
            (Route::Folder, Verb::Post) => Some(Action::MakeFolder),
            (Route::Object, Verb::Delete) => Some(Action::Remove),
            (Route::Move, Verb::Post) => Some(Action::Move),
            (Route::Dacl, Verb::Get) => Some(Action::ReadList(Which::Dacl)),
            (Route::Dacl, Verb::Put) => Some(Action::SetList(Which::Dacl)),
            (Route::Sacl, Verb::Get) => Some(Action::ReadList(Which::Sacl)),
            (Route::Sacl, Verb::Put) => Some(Action::SetList(Which::Sacl)),
            (Route::Attr, Verb::Get) => Some(Action::ReadAttr),
            (Route::Attr, Verb::Put) => Some(Action::SetOwners),
            (Route::Can, Verb::Get) => Some(Action::Can),
            _ => None,
        }
    }
}
