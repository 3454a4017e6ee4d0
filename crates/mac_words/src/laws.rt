//! The numbers of the result codes, and the values of the attributes' bits.

ghost use Rattle.std.specs.Prelude.{◌≡◌};
ghost use Rattle.mac_words.specs.Codes.{noErr, dsLoadErr, dskFulErr, eofErr, fnfErr, dupFNErr};
ghost use Rattle.mac_words.specs.Codes.{wrPermErr, memFullErr, nilHandleErr, memWZErr, memPurErr};
ghost use Rattle.mac_words.specs.Codes.{memLockedErr, resourceInMemory, writingPastEnd};
ghost use Rattle.mac_words.specs.Codes.{inputOutOfBounds, resNotFound, resFNotFound, addResFailed};
ghost use Rattle.mac_words.specs.Codes.{rmvResFailed, resAttrErr, mapReadErr, profileErr};
ghost use Rattle.mac_words.specs.Codes.{resSysHeap, resPurgeable, resLocked, resProtected};
ghost use Rattle.mac_words.specs.Codes.{resPreload, resChanged};
ghost use Rattle.mac_words.specs.declared.code.TheConstants.OsErr as TheCodes;
ghost use Rattle.mac_words.specs.declared.attributes.TheConstants.Attrs as TheBits;

/// Each result code has the number that Apple's headers give it; this project's own code has the
/// number that this project chose.
///
/// *Inside Macintosh: Memory*, "Result Codes"; *More Macintosh Toolbox*, chapter 1, "Result Codes".
pub fn codes_are_the_manuals()
    ensures no_err { TheCodes.NO_ERR.0 ≡ noErr }
    ensures ds_load_err { TheCodes.SYSTEM_ERROR.0 ≡ dsLoadErr }
    ensures dsk_ful_err { TheCodes.DISK_FULL.0 ≡ dskFulErr }
    ensures eof_err { TheCodes.END_OF_FILE.0 ≡ eofErr }
    ensures fnf_err { TheCodes.FILE_NOT_FOUND.0 ≡ fnfErr }
    ensures dup_fn_err { TheCodes.DUPLICATE_FILE.0 ≡ dupFNErr }
    ensures wr_perm_err { TheCodes.WRITE_PERMISSION.0 ≡ wrPermErr }
    ensures mem_full_err { TheCodes.MEM_FULL.0 ≡ memFullErr }
    ensures nil_handle_err { TheCodes.NIL_HANDLE.0 ≡ nilHandleErr }
    ensures mem_wz_err { TheCodes.WRONG_ZONE.0 ≡ memWZErr }
    ensures mem_pur_err { TheCodes.PURGED.0 ≡ memPurErr }
    ensures mem_locked_err { TheCodes.LOCKED.0 ≡ memLockedErr }
    ensures resource_in_memory { TheCodes.IN_MEMORY.0 ≡ resourceInMemory }
    ensures writing_past_end { TheCodes.TOO_LONG.0 ≡ writingPastEnd }
    ensures input_out_of_bounds { TheCodes.OFFSET.0 ≡ inputOutOfBounds }
    ensures res_not_found { TheCodes.RES_NOT_FOUND.0 ≡ resNotFound }
    ensures res_f_not_found { TheCodes.RES_FILE_NOT_FOUND.0 ≡ resFNotFound }
    ensures add_res_failed { TheCodes.ADD_RES_FAILED.0 ≡ addResFailed }
    ensures rmv_res_failed { TheCodes.REMOVE_RES_FAILED.0 ≡ rmvResFailed }
    ensures res_attr_err { TheCodes.RES_ATTR.0 ≡ resAttrErr }
    ensures map_read_err { TheCodes.MAP_READ.0 ≡ mapReadErr }
    ensures profile_err { TheCodes.PROFILE.0 ≡ profileErr }
{}

/// Each bit of a resource's attributes has the value that Apple's headers give it.
///
/// *More Macintosh Toolbox*, chapter 1, "Resource Attributes".
pub fn attribute_bits_are_the_manuals()
    ensures res_sys_heap { TheBits.SYSTEM_HEAP ≡ resSysHeap }
    ensures res_purgeable { TheBits.PURGEABLE ≡ resPurgeable }
    ensures res_locked { TheBits.LOCKED ≡ resLocked }
    ensures res_protected { TheBits.PROTECTED ≡ resProtected }
    ensures res_preload { TheBits.PRELOAD ≡ resPreload }
    ensures res_changed { TheBits.CHANGED ≡ resChanged }
{}
