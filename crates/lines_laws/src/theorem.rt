ghost use Rattle.lines_laws.specs.Laws.{OneStep, ReadsBack, WritesBack};

// A step and its line belong to each other.
pub(crate) fn laws()
    ensures read { ReadsBack }
    ensures one { OneStep }
    ensures write { WritesBack }
{}
