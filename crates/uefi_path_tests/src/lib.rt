// Paths at their limits, as tables of inputs and answers.
#![tactic(auto)]

#[cfg(test)]
mod tests {
    use std::alloc::{AllocError, Global};
    use std::test::Fail;
    use uefi_path::path::{NewPathError, Path};
    use uefi_path::pathbuf::{PathBuf, TooLong};
    use uefi_path::validation::{PathError, validate_path};

    // A path of ASCII text.
    fn ascii_path(heap: Global, text: &str) -> Result<Path, Fail> {
        let units: Vec<u16> = text.bytes().map(u16::from).collect(heap)?;
        Ok(Path::new(units.as_slice())?)
    }

    // What the parent of a path is, as text.
    fn parent_text(heap: Global, path: &Path) -> Result<Option<String>, AllocError> {
        path.parent()
            .map(|parent| format!(in heap; "{}", parent.as_path()))
            .transpose()
    }

    #[test]
    fn lengths(rt: HostRuntime) {
        let units = [0x41u16; 257];
        for n in [0usize, 1, 255, 256] {
            assert!(rt; units.get(0..n).is_some_and(|part| Path::new(part).is_ok()));
        }
        assert_eq!(rt; Path::new(&units).err(), Some(NewPathError::PathTooLong));
    }

    #[test]
    fn units(rt: HostRuntime) {
        for good in [1u16, 0xD7FF, 0xE000, 0xFFFF] {
            assert!(rt; Path::new(&[0x41, good]).is_ok());
        }
        for bad in [0u16, 0xD800, 0xDFFF] {
            assert_eq!(rt;
                Path::new(&[0x41, bad]).err(),
                Some(NewPathError::BadUnit(1))
            );
        }
    }

    #[test]
    fn parents(rt: HostRuntime) -> Result<(), Fail> {
        let heap = rt.alloc();
        let table = [
            ("\\a", ""),
            ("a\\\\\\b\\c", "a\\b"),
            ("a\\b", "a"),
            ("\\a\\b\\c", "a\\b"),
            ("a\\", "a"),
            ("\\\\", ""),
            ("a/\\b\\c", "a\\\\b"),
            ("/a\\b", "\\a"),
            ("a\\b/", "a"),
        ];
        for (text, parent) in table {
            let path = ascii_path(heap, text)?;
            let Some(found) = parent_text(heap, &path)? else {
                return Err(Fail::new("no parent"));
            };
            assert!(rt; found.as_str() == parent);
        }
        for text in ["", "\\", "a", "a/b"] {
            let path = ascii_path(heap, text)?;
            assert!(rt; path.parent().is_none());
        }
        Ok(())
    }

    #[test]
    fn joins(rt: HostRuntime) -> Result<(), Fail> {
        let heap = rt.alloc();
        let table = [
            ("", "", ""),
            ("", "/a/", "\\a\\"),
            ("a", "", "a"),
            ("a", "b", "a\\b"),
            ("a\\", "b", "a\\\\b"),
            ("\\", "b", "\\\\b"),
            ("a/", "/b", "a\\\\\\b"),
        ];
        for (front, back, whole) in table {
            let joined = ascii_path(heap, front)?.join(&ascii_path(heap, back)?)?;
            assert!(rt; format!(in heap; "{}", joined.as_path())?.as_str() == whole);
        }
        Ok(())
    }

    #[test]
    fn pushes_at_the_limit(rt: HostRuntime) -> Result<(), Fail> {
        let units = [0x41u16; 256];
        let mut buf = PathBuf::new();
        buf.push(&Path::new(&units[0..254])?)?;
        assert_eq!(rt; buf.push(&Path::new(&units[0..2])?), Err(TooLong));
        assert_eq!(rt; buf.as_path().units().len(), 254);
        buf.push(&Path::new(&units[0..1])?)?;
        assert_eq!(rt; buf.as_path().units().len(), 256);
        assert_eq!(rt; buf.push(&Path::new(&[])?), Ok(()));
        buf.clear();
        assert!(rt; buf.as_path().is_empty());
        Ok(())
    }

    #[test]
    fn validation(rt: HostRuntime) -> Result<(), Fail> {
        let heap = rt.alloc();
        for text in ["\\", "a", "\\a", "a\\b", ".", ".."] {
            assert_eq!(rt; validate_path(&ascii_path(heap, text)?), Ok(()));
        }
        let table = [
            ("", PathError::Empty),
            ("a\\", PathError::EmptyComponent),
            ("\\\\", PathError::EmptyComponent),
            ("a\\\\b<", PathError::EmptyComponent),
            ("a<\\\\b", PathError::IllegalChar(0x3C)),
            ("a<b", PathError::IllegalChar(0x3C)),
            ("/a", PathError::IllegalChar(0x2F)),
            ("a/", PathError::IllegalChar(0x2F)),
            ("a|\"", PathError::IllegalChar(0x7C)),
        ];
        for (text, error) in table {
            assert_eq!(rt; validate_path(&ascii_path(heap, text)?), Err(error));
        }
        Ok(())
    }

    #[test]
    fn sameness(rt: HostRuntime) -> Result<(), Fail> {
        let heap = rt.alloc();
        let path = ascii_path(heap, "\\a\\b")?;
        assert!(rt; path == ascii_path(heap, "a\\b")?);
        assert!(rt; path != ascii_path(heap, "\\\\a\\b")?);
        assert!(rt; path != ascii_path(heap, "a\\b\\")?);
        assert!(rt; path != ascii_path(heap, "a\\B")?);
        assert!(rt; ascii_path(heap, "")? == ascii_path(heap, "\\")?);
        Ok(())
    }

    #[test]
    fn components(rt: HostRuntime) -> Result<(), Fail> {
        let heap = rt.alloc();
        for (text, count) in [
            ("", 0usize),
            ("\\", 0),
            ("\\\\", 2),
            ("a", 1),
            ("\\a", 1),
            ("a\\", 2),
            ("\\\\\\\\", 4),
        ] {
            assert_eq!(rt; ascii_path(heap, text)?.components().count(), count);
        }
        Ok(())
    }
}
