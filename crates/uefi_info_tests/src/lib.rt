// Examples of statuses, errors, modes, times and records, run as tests.
#![tactic(auto)]

#[cfg(test)]
mod tests {
    use std::test::Fail;
    use uefi_info::{
        FileInfo, FileInfoCreationError, FileSystemVolumeLabel, InfoInternal, Name, ShortBuffer,
        from_uefi,
    };
    use uefi_result::{Error, Status};
    use uefi_time::Time;
    use uefi_types::{Align, FileAttribute, FileMode, NoMode};

    #[test]
    fn an_error_keeps_its_status(rt: HostRuntime) -> Result<(), Fail> {
        assert!(rt; Status::SUCCESS.to_result().is_ok());
        assert!(rt; Error::new(Status::SUCCESS, 1u8).is_none());
        let Some(error) = Error::new(Status::NOT_FOUND, 7u8) else {
            return Err(Fail::new("no error"));
        };
        let (status, data) = error.split();
        assert_eq!(rt; status, Status::NOT_FOUND);
        assert_eq!(rt; data, 7);
        Ok(())
    }

    #[test]
    fn only_legal_modes(rt: HostRuntime) {
        assert_eq!(rt; u64::from(FileMode::CreateReadWrite), 0x8000_0000_0000_0003);
        assert_eq!(rt; FileMode::try_from(3), Ok(FileMode::ReadWrite));
        assert_eq!(rt; FileMode::try_from(2), Err(NoMode(2)));
    }

    #[test]
    fn rounding_stops_at_the_top(rt: HostRuntime) {
        assert_eq!(rt; FileInfo::round_up_to_alignment(84), Some(88));
        assert_eq!(rt; FileInfo::round_up_to_alignment(88), Some(88));
        assert_eq!(rt; FileInfo::round_up_to_alignment(usize::MAX), None);
    }

    #[test]
    fn a_built_record_is_read(rt: HostRuntime) -> Result<(), Fail> {
        let mut buffer = [0xeeu8; 96];
        let name = [0x44u16, 0x69, 0x72];
        let time = Time::invalid();
        let length = FileInfo::new(
            &mut buffer,
            1,
            2,
            time,
            time,
            time,
            FileAttribute::DIRECTORY,
            &name,
        );
        assert_eq!(rt; length, Ok(88));
        let Ok(info) = from_uefi::<FileInfo>(&buffer, 88) else {
            return Err(Fail::new("not read"));
        };
        assert!(rt; info.header.is_directory());
        assert_eq!(rt; info.header.size(), 88);
        let refused = info.header.write_header(&mut [0; 79]);
        assert_eq!(rt; refused, Err(ShortBuffer { needed: 80 }));
        let mut units = [0u16; 4];
        assert!(rt; info.name.copy_to(&mut units).is_ok());
        assert_eq!(rt; units, [0x44, 0x69, 0x72, 0]);
        Ok(())
    }

    #[test]
    fn units_come_in_turn(rt: HostRuntime) {
        let name = Name {
            bytes: &[0x41, 0, 0x42, 1, 0x43],
        };
        let mut units = name.units();
        assert_eq!(rt; units.next(), Some(0x41));
        assert_eq!(rt; units.next(), Some(0x142));
        assert_eq!(rt; units.next(), None);
        assert_eq!(rt; name.unit(1), Some(0x142));
        assert_eq!(rt; name.unit(2), None);
    }

    #[test]
    fn a_refused_record_leaves_the_buffer(rt: HostRuntime) {
        let mut buffer = [0xeeu8; 3];
        assert_eq!(rt;
            FileSystemVolumeLabel::new(&mut buffer, &[0x41]),
            Err(FileInfoCreationError::ShortBuffer(4))
        );
        assert_eq!(rt;
            FileSystemVolumeLabel::new(&mut buffer, &[0x41, 0xdc00]),
            Err(FileInfoCreationError::BadUnit(1))
        );
        assert_eq!(rt; buffer, [0xee; 3]);
    }
}
