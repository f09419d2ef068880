//! Laws of the files of slices, each the contract of a function that does nothing.
ghost use Rattle.kmc_slice_files.specs.Laws.{FilesAreOne, FilesHaveOneMeaning, FrontsAreNoFiles, FilesAreReadAsWritten, SoundFilesAreTaken, ChangedBytesAreTold};

/// A text begins with one file of a slice at most.
pub fn files_are_one()
    ensures { FilesAreOne }
{}

/// A file is of one shape and slice, and of one body for each of its bins.
pub fn files_have_one_meaning()
    ensures { FilesHaveOneMeaning }
{}

/// What was cut short is no file of a slice.
pub fn fronts_are_no_files()
    ensures { FrontsAreNoFiles }
{}

/// What is read of a file is what was written.
pub fn files_are_read_as_written()
    ensures { FilesAreReadAsWritten }
{}

/// Of a file that was written no fault of its bytes is told.
pub fn sound_files_are_taken()
    ensures { SoundFilesAreTaken }
{}

/// A changed byte of a body, or of what stands before a header's check word, is another check word.
pub fn changed_bytes_are_told()
    ensures { ChangedBytesAreTold }
{}
