//! Laws of runs of several files, each the contract of a function that does nothing.
ghost use Rattle.w_linked.specs.Laws.{FilesFit, LinkedIsSound, CodesAreOfFiles, LinkedStartsAreTyped, LinkedRunsGoOn};
ghost use Rattle.w_linked.specs.Laws.{OneFileStarts, OneFileRuns, OneFileRunsAlone};
ghost use Rattle.w_linked.specs.Reading.{FunctionsAreRead, TablesAreRead, MemoriesAreRead, GlobalsAreRead, TagsAreRead, TypesAreRead};

/// The indices of each of some valid files stand for addresses of the module that they make, where what is there fits.
pub fn files_fit()
    ensures fit { FilesFit }
{}

/// The module that valid files make is what runs ask for.
pub fn linked_is_sound()
    ensures sound { LinkedIsSound }
{}

/// Each of its codes is a code of a file, and has as many operands and as many blocks around a place as there.
pub fn codes_are_of_files()
    ensures codes { CodesAreOfFiles }
{}

/// Where a run of valid files begins, the configuration is typed.
pub fn linked_starts_are_typed()
    ensures typed { LinkedStartsAreTyped }
{}

/// No run of valid files is stuck.
pub fn linked_runs_go_on()
    ensures goes_on { LinkedRunsGoOn }
{}

/// One file whose imports are all functions of the host starts as it does by itself, and its run is its own.
pub fn one_file_runs()
    ensures starts { OneFileStarts }
    ensures program { OneFileRuns }
    ensures runs { OneFileRunsAlone }
{}

/// The rule of each instruction that has an index looks up what the lists of its instance have for the index.
pub fn indices_are_read_through_instances()
    ensures functions { FunctionsAreRead }
    ensures tables { TablesAreRead }
    ensures memories { MemoriesAreRead }
    ensures globals { GlobalsAreRead }
    ensures tags { TagsAreRead }
    ensures types { TypesAreRead }
{}
