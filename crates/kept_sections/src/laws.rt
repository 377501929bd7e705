//! Laws of sections.
ghost use Rattle.std.specs.Prelude.{List};
ghost use Rattle.schema_model.specs.declared.schema.Schema.{Schema};
ghost use Rattle.row_model.specs.Table.{Table};
ghost use Rattle.kept_sections.specs.Sections.{AreSections, AreSectionsFor};
ghost use Rattle.kept_sections.specs.declared.section.PackedSection.{PackedSection};

/// The sections by which the snapshot of a state is written can be kept for the state after it.
pub fn kept_for_next()
    ensures { (schemas : List Schema) (old new : Table) (sections : List PackedSection) → AreSectionsFor schemas old new sections → AreSections schemas new sections }
{}
