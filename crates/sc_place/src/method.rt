ghost use Rattle.std.specs.Prelude.{◌≡◌, MatchOption};
ghost use Rattle.sc_place.specs.declared.method.Method.{Method as AMethod};
ghost use Rattle.sc_place.specs.Operations.{name_of, listed, methods_at};

use crate::resource::Resource;

/// A method that some resource has.
#[derive(Clone, Copy, Debug, PartialEq, Eq)]
pub enum Method {
    Get,
    Post,
    Put,
    Patch,
    Delete,
}

#[tactic(auto, unfolding(crate::specs::Operations::name_of))]
fn name_of(method: Method) -> &'static str
    ensures { result.now ≡ name_of method }
{
    match method {
        Method::Get => "GET",
        Method::Post => "POST",
        Method::Put => "PUT",
        Method::Patch => "PATCH",
        Method::Delete => "DELETE",
    }
}

/// The method of that name, or `None` exactly where it is the name of none.
pub fn method_named(name: &str) -> Option<Method>
    ensures { MatchOption result ((m : AMethod) → ¬ (name.now ≡ name_of m)) (λ m. name.now ≡ name_of m) }
{
    if name == name_of(Method::Get) {
        return Some(Method::Get);
    }
    if name == name_of(Method::Post) {
        return Some(Method::Post);
    }
    if name == name_of(Method::Put) {
        return Some(Method::Put);
    }
    if name == name_of(Method::Patch) {
        return Some(Method::Patch);
    }
    if name == name_of(Method::Delete) {
        return Some(Method::Delete);
    }
    None
}

/// The names of the methods that a resource has, with a comma and a blank between two of them.
#[tactic(auto, unfolding(crate::specs::Operations::name_of))]
pub fn methods_at(resource: &Resource) -> &'static str
    ensures { result.now ≡ listed (methods_at resource.now) }
{
    match resource {
        Resource::Landing => "GET",
        Resource::Conformance => "GET",
        Resource::Queryables => "GET",
        Resource::Search => "GET, POST",
        Resource::Collections => "GET, POST",
        Resource::Collection { .. } => "GET, DELETE",
        Resource::Items { .. } => "GET, POST",
        Resource::Item { .. } => "GET, PUT, PATCH, DELETE",
    }
}
