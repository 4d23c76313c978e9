//! The routes of the desk, and routing requests by them.

ghost use Rattle.std.specs.Prelude.{◌≡◌, IsUtf8, ℕ, List, IfSome, IfNone};
ghost use Rattle.http_messages.specs.Targets.{IsTarget};
ghost use Rattle.http_messages.specs.Finds.{FindsAll};
ghost use Rattle.http_messages.specs.Routing.{IsRouted};

use crate::places::{Place, is_allowed, is_read, leads_to, record_of};
use grid_exact::{Bytes, NoMemory};
use http::Method;
use matchit::Router;
use std::alloc::Global;

/// The result of routing a request.
#[derive(Drop, Debug)]
pub enum Routed {
    /// The record for the request.
    Record(Bytes),
    /// No route has the target: 404.
    NotFound,
    /// A route with another method has the target: 405. The route's method is GET where `get` is true, else POST.
    NotAllowed {
        /// Whether the route's method is GET.
        get: bool,
    },
    /// Memory was refused.
    NoMemory,
}

/// The routes: `POST /record`, and `GET` for `/review`, `/case/{n}`, `/airfield/{id}` and `/report/{name}`.
pub struct Routes {
    router: Router<Place>,
    ghost found: { ∥ FindsAll router ∥₁ },
}

// By hand, so that no crate above proves again how what it holds is dropped.
impl Drop for Routes {
    fn drop(self) {
        let Routes { router: _ } = self;
    }
}

impl Routes {
    /// All routes.
    ///
    /// # Errors
    ///
    /// `NoMemory` where memory was refused.
    pub fn new(alloc: Global) -> Result<Routes, NoMemory> {
        match Routes::build(alloc) {
            Ok(routes) => Ok(routes),
            Err(_) => Err(NoMemory),
        }
    }

    /// Builds the routes; the errors are the router's own.
    fn build(alloc: Global) -> Result<Routes, matchit::InsertError> {
        let mut router = Router::new(alloc);
        router.insert("/record", Place::Record)?;
        router.insert("/review", Place::Review)?;
        router.insert("/case/{n}", Place::Case)?;
        router.insert("/airfield/{id}", Place::Airfield)?;
        router.insert("/report/{name}", Place::Report)?;
        Ok(Routes { router })
    }

    /// The place that a target leads to. One that is not UTF-8 leads nowhere.
    fn locate(&self, target: &[u8]) -> Option<Place>
        ensures found { IfSome result (λ place. IsUtf8 target.now
            × ((name : List ℕ) × IsTarget place name target.now)) }
        ensures none { IfNone result (IsUtf8 target.now → (place : Place) (name : List ℕ)
            → IsTarget place name target.now → ⊥) }
    {
        match str::from_utf8(target) {
            Ok(text) => match self.router.at(text) {
                Ok(found) => {
                    let place = *found.value;
                    if leads_to(target, place) {
                        return Some(place);
                    }
                    None
                }
                Err(_) => None,
            },
            Err(_) => None,
        }
    }

    /// Routes a request with this method, target and body. The target is matched as it stands, without
    /// decoding. The record of a body is the body without a line feed at its end, and without a
    /// carriage return before that.
    pub fn find(&self, alloc: Global, method: &Method, target: &[u8], body: &[u8]) -> Routed
        ensures { IsRouted method.now target.now body.now result }
    {
        match self.locate(target) {
            Some(place) => {
                if !is_allowed(place, method) {
                    let get = is_read(place);
                    return Routed::NotAllowed { get };
                }
                match record_of(alloc, place, target, body) {
                    Ok(record) => Routed::Record(record),
                    Err(_) => Routed::NoMemory,
                }
            }
            None => Routed::NotFound,
        }
    }
}
