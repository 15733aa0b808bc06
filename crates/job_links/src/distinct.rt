//! That the jobs of a job file write different files.
ghost use Rattle.job_links.specs.Linking.{JobsAreDistinct};

/// No two jobs that a text spells write the same file.
pub fn jobs_are_distinct()
    ensures { JobsAreDistinct }
{}
