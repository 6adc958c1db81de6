// The laws of bindings that later layers rest on.
ghost use Rattle.unification.specs.Bindings.{ExactlyOne, NeverInside, NeverTwice};

// Good bindings extend every assignment of the unbound variables to exactly one instance; none of their variables occurs
// in its own value, and none is bound twice.
pub fn unification_stands()
    ensures extends { ExactlyOne }
    ensures free { NeverInside }
    ensures once { NeverTwice }
{}
