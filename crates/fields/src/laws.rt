//! What is proved of every setup and its names. These functions do nothing: each clause is a law.
ghost use Rattle.std.specs.Prelude.{◌≡◌, Ok};
ghost use Rattle.setup_reading.specs.Reading.{kept_in, memberless};
ghost use Rattle.fields.specs.Naming.{NumbersAreFields, FieldsAreFound, ChoicesAreFound, UsersAreFound, GroupsAreFound, TransitionsAreFound, ProjectsAreFound};
ghost use Rattle.fields.specs.Sound.{IsSound};
ghost use Rattle.fields.specs.SetupParts.{parts};

use crate::setup::Setup;

/// A setup keeps what its reading tested, and its text reads to its parts, but for the members of groups, which may
/// have been set since.
pub fn keeps_what_was_read(setup: &Setup)
    ensures sound { IsSound (parts setup.now) }
    ensures reads { kept_in setup.now.text ≡ Ok (memberless (parts setup.now)) }
{
    let _ = setup;
}

/// The numbers of fields are those for whose values there is a form, and by its name each field is found.
pub fn fields_are_found()
    ensures numbers { NumbersAreFields }
    ensures named { FieldsAreFound }
{}

/// By its name each choice of a field is found, and each user, group, transition and project.
pub fn names_are_found()
    ensures choices { ChoicesAreFound }
    ensures users { UsersAreFound }
    ensures groups { GroupsAreFound }
    ensures transitions { TransitionsAreFound }
    ensures projects { ProjectsAreFound }
{}
