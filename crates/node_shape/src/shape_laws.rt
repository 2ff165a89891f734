//! What holds of the words of the shape by their definitions alone.

ghost use Rattle.node_shape.specs.Carries.{AnsweredIsCarried, AskedIsCarried};
ghost use Rattle.node_shape.specs.WaysAround.{AlikeCarries};

/// Where a link carries each transaction of another one as it is, what is asked as it should be on one
/// of them is so on the other, and what is answered likewise. What fits a link fits each link of the
/// same form.
pub fn laws_of_links()
    ensures asked { AskedIsCarried }
    ensures answered { AnsweredIsCarried }
    ensures alike { AlikeCarries }
{}
