//! Laws of counting anew, each as a function without a body.
ghost use Rattle.volume_repair.specs.Laws.{KeysStay, OnceIsEnough, SoundStaysAsItIs, ValuesStay};

/// A sound volume counts right already, and is its own repair.
pub fn sound_stays_as_it_is()
    ensures { SoundStaysAsItIs }
{}

/// Where counting anew makes a volume sound, a second time changes nothing.
pub fn once_is_enough()
    ensures { OnceIsEnough }
{}

/// Each key of the catalog stays.
pub fn keys_stay()
    ensures { KeysStay }
{}

/// Each value of the catalog stays, but for valences and for the special words of files with several names.
pub fn values_stay()
    ensures { ValuesStay }
{}
