ghost use Rattle.page_spec.specs.Laws.{TextsStayInside, AttributesStayInside};
ghost use Rattle.page_spec.specs.Tags.{MarkupCloses};

/// Whatever a text is, what it gives holds no `<` and no `>`, and each `&` in it begins an entity: no text of a script
/// opens or closes a tag.
pub fn texts_stay_inside()
    ensures { TextsStayInside }
{}

/// Whatever an attribute's text is, the same holds of what it gives, and there is no `"` in it: it does not close its
/// quotes.
pub fn attributes_stay_inside()
    ensures { AttributesStayInside }
{}

/// Whatever is well formed closes its elements in their order: a reader that goes over the bytes once, and keeps the
/// names of the elements that are open, finds that each end tag closes the innermost of them and that none is open at
/// the end.
pub fn markup_closes_its_elements()
    ensures { MarkupCloses }
{}
