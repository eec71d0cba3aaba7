// Which trees are laid out. Each law is a contract, so that the check proves it.
ghost use Rattle.js_syntax.specs.Class.{root};
ghost use Rattle.js_syntax.specs.Node.{Forest};
ghost use Rattle.json_shape.specs.Shape.{Fits};
ghost use Rattle.steps.specs.KeepForm.Sheds.{Sheds, outermost};
ghost use Rattle.steps.specs.KeepForm.Layout.{IsLaidOut};

/// Law: a tree that fits the table of node types is laid out.
pub fn what_fits_is_laid_out()
    ensures { (t : Forest) → Fits root t → IsLaidOut t }
{}

/// Law: what is left is laid out as the tree was.
pub fn layout_stays()
    ensures { (t u : Forest) → Sheds outermost t u → IsLaidOut t → IsLaidOut u }
{}
